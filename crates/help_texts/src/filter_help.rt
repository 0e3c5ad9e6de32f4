// What the program tells of its filters.
ghost use Rattle.std.specs.Prelude.{◌≡◌, is_some};
ghost use Rattle.help_texts.specs.Asking.{is_one_of, filters};

/// The text of the filter of this name; none where there is no such filter.
pub fn help_of_filter(name: &str) -> Option<&'static str>
    ensures { is_some result ≡ is_one_of filters name.now }
{
    match name {
        "subunit-filter" => Some(FILTER),
        "subunit-tags" => Some(TAGS),
        "subunit-ls" => Some(LS),
        "subunit-stats" => Some(STATS),
        "subunit-trace" => Some(TRACE),
        "tap2subunit" => Some(FROM_TAP),
        "subunit2tap" => Some(TO_TAP),
        "subunit2csv" => Some(TO_CSV),
        "subunit2junitxml" => Some(TO_JUNIT),
        "subunit-output" => Some(OUTPUT),
        "subunit-1to2" => Some(FROM_V1),
        "subunit-2to1" => Some(TO_V1),
        _ => None,
    }
}

const FILTER: &str = "\
usage: subunit-filter [OPTION..] [FILE]
Reads a Subunit v2 stream from standard input, or this file, and writes the events of those tests that are kept, and each
event that is of no test, as soon as it is decided. Other bytes pass on as they are. Status 0.
Which tests are kept by how they ended:
  -s, --success              those that passed; at first they are left out, and --no-success leaves them out again
  -f, --no-failure           leaves out those that failed, passed against the expectation or did not end; --failure keeps them
  --no-skip                  leaves out those that were skipped
  --xfail, --no-xfail        those that failed as expected; at first they are kept
  -F, --only-genuine-failures
                             leaves out those that passed, were skipped or failed as expected, and output of no test
  -e, --no-error             changes nothing: a stream tells of no errors beside failures
Of these tests only those:
  --with-tag=TAG             that have this tag; where it is repeated, each of the tags
  --without-tag=TAG          that do not have this tag; where it is repeated, none of the tags
  -m PATTERN, --with-id=PATTERN
                             in whose id the pattern is found; where it is repeated, one of the patterns
  --without-id=PATTERN       in whose id the pattern is not found; where it is repeated, none of the patterns
And:
  --no-passthrough           leaves out output of no test: other bytes, and events with a file and no id
  -o FILE, --output-to=FILE  writes into this file, which has its name once it is whole
Options are taken from left to right, and the last one stands. A value may also be the next word. A pattern is a regular
expression, which may match anywhere in the id.
Statuses: 2 wrong usage, 3 a bad pattern or a missing file, 4 a fault of the outside, 5 out of memory.
Example: subunit-filter -s -m '^parser\\.' stream
";

const TAGS: &str = "\
usage: subunit-tags [TAG | -TAG].. [-- [FILE]]
Reads a Subunit v2 stream from standard input, or this file, gives each event these tags, and writes it as soon as it is
read. Other bytes become events of the file stdout. Status 0.
  TAG     is added
  -TAG    is removed, also where it is added
The tags of an event come in the order of their bytes. The one word --help asks for this text; to remove the tag -help,
write --help twice.
Statuses: 2 wrong usage, 3 a missing file, 4 a fault of the outside, 5 out of memory.
Example: subunit-tags worker-0 -slow -- stream
";

const LS: &str = "\
usage: subunit-ls [OPTION..] [FILE]
Reads a Subunit v2 stream from standard input, or this file, and prints the id of each test as it ends, and at the end of
those that did not. Other bytes, and files without an id, pass on as they are. Status 0 where no test failed, 1 where one
did.
  --times             prints behind the id how many seconds the test took, where that is known
  --exists            prints also the tests that are only said to exist
  --no-passthrough    leaves out other bytes, and files without an id
  -o FILE, --output-to=FILE
                      writes into this file, which has its name once it is whole
Statuses: 2 wrong usage, 3 a missing file, 4 a fault of the outside, 5 out of memory.
Example: subunit-ls --times stream
";

const STATS: &str = "\
usage: subunit-stats [OPTION..] [FILE]
Reads a Subunit v2 stream from standard input, or this file, and prints at its end how many tests there were, how many of
them passed, failed and were skipped, and their tags. Other bytes, and files without an id, pass on as they are.
Status 0 where no test failed, 1 where one did.
  --no-passthrough    leaves out other bytes, and files without an id
  -o FILE, --output-to=FILE
                      writes into this file, which has its name once it is whole
Statuses: 2 wrong usage, 3 a missing file, 4 a fault of the outside, 5 out of memory.
Example: subunit-stats stream
";

const FROM_TAP: &str = "\
usage: tap2subunit [-o FILE] [FILE]
Reads lines of the Test Anything Protocol from standard input, or this file, and writes a Subunit v2 stream. A line that is
none of the protocol becomes an event of the file stdout. Status 0.
  -o FILE, --output-to=FILE  writes into this file, which has its name once it is whole
Statuses: 2 wrong usage, 3 a missing file, 4 a fault of the outside, 5 out of memory.
Example: perl t/parser.t | tap2subunit
";

const TO_TAP: &str = "\
usage: subunit2tap [-o FILE] [FILE]
Reads a Subunit v2 stream from standard input, or this file, and writes a line of the Test Anything Protocol for each test
as it ends, for those that did not end at the end of the stream, and then the plan. Other bytes are left out. Status 0
where no test failed, 1 where one did.
  -o FILE, --output-to=FILE  writes into this file, which has its name once it is whole
Statuses: 2 wrong usage, 3 a missing file, 4 a fault of the outside, 5 out of memory.
Example: subunit2tap stream
";

const TO_CSV: &str = "\
usage: subunit2csv [OPTION..] [FILE]
Reads a Subunit v2 stream from standard input, or this file, and writes comma-separated records: first the names of the
fields, then one record for each test that is kept, as it ends, and at the end for those that did not. The fields are the
id, how the test ended, and when it began and ended, in UTC. Other bytes are left out. Status 0.
Which tests are kept by how they ended; at first all are:
  --no-success               leaves out those that passed
  --no-failure               leaves out those that failed, passed against the expectation or did not end
  --no-skip                  leaves out those that were skipped
  --no-xfail                 leaves out those that failed as expected
Of these tests only those:
  --with-tag=TAG             that have this tag; where it is repeated, each of the tags
  --without-tag=TAG          that do not have this tag; where it is repeated, none of the tags
  --with-id=PATTERN          in whose id the pattern is found; where it is repeated, one of the patterns
  --without-id=PATTERN       in whose id the pattern is not found; where it is repeated, none of the patterns
And:
  -o FILE, --output-to=FILE  writes into this file, which has its name once it is whole
Statuses: 2 wrong usage, 3 a bad pattern or a missing file, 4 a fault of the outside, 5 out of memory.
Example: subunit2csv --no-success stream
";

const TRACE: &str = "\
usage: subunit-trace [OPTION..] [FILE]
Reads a Subunit v2 stream from standard input, or this file, and writes lines of each test as soon as it has ended, and
behind them the totals. Bytes that are no events are left out.
  --live=tests       a line of each test: lane, id, time and how it ended; below a failure its text; this is the default
  --live=failures    what a report says of each test that failed
  --live=dots        a mark of each test: . for passed, F for failed, S for skipped
  --live=none        nothing but the totals
  --no-summary       leaves the totals out
  -o FILE, --output-to=FILE
                     writes into this file, which has its name once it is whole
Status 0 where tests ran and none failed, 1 where one failed or none ran.
Statuses: 2 wrong usage, 3 a missing file, 4 a fault of the outside, 5 out of memory.
Example: testr last --subunit | subunit-trace
";

const TO_JUNIT: &str = "\
usage: subunit2junitxml [OPTION..] [FILE]
Reads a Subunit v2 stream from standard input, or this file, and writes at its end a document of JUnit XML, for build
servers: how many tests there were, failed and were skipped, and a case for each. Other bytes are left out, with
--no-passthrough or without. Status 0 where no test failed, 1 where one did.
  -o FILE, --output-to=FILE  writes into this file, which has its name once it is whole
Statuses: 2 wrong usage, 3 a missing file, 4 a fault of the outside, 5 out of memory.
Example: subunit2junitxml -o junit.xml stream
";

const OUTPUT: &str = "\
usage: subunit-output [OPTION..]
Writes a Subunit v2 stream of one test's event. Standard input is read only where it is attached. Status 0.
At most one of these, of the test with this id:
  --exists=ID, --inprogress=ID, --success=ID, --uxsuccess=ID, --skip=ID, --fail=ID, --xfail=ID
And:
  --tag=TAG                  gives the test this tag; may be repeated
  --attach-file=FILE         attaches this file, in pieces of 65,536 bytes; - is standard input
  --file-name=NAME           names that file; else it has its own name, and standard input is stdin
  --mimetype=TYPE            tells its MIME type
  --timestamp=WHEN           when it was, in UTC, as '2026-11-29 08:38:00Z', with up to 9 digits behind the seconds
Tags stand beside a status, a name and a type beside a file. A value may also be the next word.
Statuses: 2 wrong usage, 3 a file that is missing or too long, 4 a fault of the outside, 5 out of memory.
Example: make 2>&1 | subunit-output --success=build --attach-file=- --mimetype=text/plain
";

const FROM_V1: &str = "\
usage: subunit-1to2 [-o FILE] [FILE]
Reads lines of Subunit version 1 from standard input, or this file, and writes a Subunit v2 stream. A line that is none of
version 1 becomes an event of the file stdout. Status 0.
  -o FILE, --output-to=FILE  writes into this file, which has its name once it is whole
Statuses: 2 wrong usage, 3 a missing file, 4 a fault of the outside, 5 out of memory.
Example: subunit-1to2 old/.testrepository/0
";

const TO_V1: &str = "\
usage: subunit-2to1 [-o FILE] [FILE]
Reads a Subunit v2 stream from standard input, or this file, and writes the lines of Subunit version 1 of each test as it
ends, and for those that did not end, at the end of the stream, that they were not completed. Other bytes pass on as they
are. Status 0.
  -o FILE, --output-to=FILE  writes into this file, which has its name once it is whole
Statuses: 2 wrong usage, 3 a missing file, 4 a fault of the outside, 5 out of memory.
Example: subunit-2to1 stream
";
