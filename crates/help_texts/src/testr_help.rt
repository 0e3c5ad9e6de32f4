// What the program tells of itself.
ghost use Rattle.std.specs.Prelude.{◌≡◌, is_some};
ghost use Rattle.help_texts.specs.Asking.{asks_of_filter, words_as_bytes, asks, asks_by_two, asks_by_three, asks_of_program, is_one_of, is_command, commands, has_commands as has_these_commands};

use crate::filter_help::help_of_filter;

/// The text that these words ask for, where they are `testr --help`, `testr --version`, a command of `testr` and `--help`,
/// the same of `stestr`, or a filter and `--help` or `-h`. Of `subunit-tags`, `-h` removes a tag.
pub fn help_of_testr(words: &[String]) -> Option<&'static str>
    ensures asked { is_some result ≡ asks (words_as_bytes words.now) }
{
    match words {
        [face, word] => return by_two(face.as_str(), word.as_str()),
        [face, command, word] => {
            return by_three(face.as_str(), command.as_str(), word.as_str());
        }
        _ => return None,
    }
}

// Whether it is the name of a face that has commands.
pub(crate) fn has_commands(face: &str) -> bool
    ensures { result ≡ has_these_commands face.now }
{
    face == "testr" || face == "stestr"
}

// The same of a face and one word.
fn by_two(face: &str, word: &str) -> Option<&'static str>
    ensures { is_some result ≡ asks_by_two face.now word.now }
{
    if has_commands(face) {
        of_program(word)
    } else if asks_filter(face, word) {
        help_of_filter(face)
    } else {
        None
    }
}

// Whether the word asks a filter of this name for its text.
fn asks_filter(face: &str, word: &str) -> bool
    ensures { result ≡ asks_of_filter face.now word.now }
{
    word == "--help" || (word == "-h" && face != "subunit-tags")
}

// The same of a face, a command and one word.
fn by_three(face: &str, command: &str, word: &str) -> Option<&'static str>
    ensures { is_some result ≡ asks_by_three face.now command.now word.now }
{
    if has_commands(face) && word == "--help" {
        of_command_by(face, command)
    } else {
        None
    }
}

// The text of a command by the name that this face has for it.
fn of_command_by(face: &str, command: &str) -> Option<&'static str>
    ensures { is_some result ≡ is_command face.now command.now }
{
    if face == "stestr" && command == "list" {
        Some(LIST_TESTS)
    } else {
        of_command(command)
    }
}

fn of_program(word: &str) -> Option<&'static str>
    ensures { is_some result ≡ asks_of_program word.now }
{
    match word {
        "--help" => Some(PROGRAM),
        "--version" => Some(VERSION),
        _ => None,
    }
}

fn of_command(word: &str) -> Option<&'static str>
    ensures { is_some result ≡ is_one_of commands word.now }
{
    match word {
        "init" => Some(INIT),
        "load" => Some(LOAD),
        "run" => Some(RUN),
        "list-tests" => Some(LIST_TESTS),
        "last" => Some(LAST),
        "failing" => Some(FAILING),
        "slowest" => Some(SLOWEST),
        "stats" => Some(STATS),
        "selftest" => Some(SELFTEST),
        "upgrade" => Some(UPGRADE),
        _ => None,
    }
}

const VERSION: &str =
    "testr 0.1, for repositories of the formats `subunit-store 1` and `subunit-store 2`\n";

const PROGRAM: &str = "\
usage: testr [-d DIR] COMMAND [OPTION]
Keeps test results as numbered runs in the folder .testrepository of the current folder, or of the folder DIR.

  testr init                makes a repository
  testr load [OPTION..] [FILE ..]
                            reads a Subunit v2 stream from standard input, or these files, and keeps it as the next run
  testr run [OPTION..] [PATTERN..]
                            runs the tests of the project, as its configuration says, and keeps what they print as the next run
  testr list-tests [OPTION..] [PATTERN..]
                            prints the ids of the tests of the project
  testr last [-q] [--skips] [--format=KIND] | [--subunit]
                            prints the report of the last run, or the run itself
  testr failing [--list | --full | --subunit]
                            prints the tests that fail by all runs, or their ids alone, or how each failed last
  testr slowest [--all]     prints the slowest ten tests of the last run, or all
  testr stats               prints how many runs there are
  testr upgrade [--from=DIR]
                            makes a folder of the original testr a repository of its runs
  testr selftest SEED LANES TESTS
                            runs made-up workers in memory, and prints the summary of their run

The words -d DIR may also stand behind the command. testr COMMAND --help tells more of a command, and testr --version
which program this is.
Statuses: 0 passed, 1 tests failed, 2 wrong usage, 3 refused, 4 a fault of the outside, 5 out of memory.
";

const INIT: &str = "\
usage: testr init
Makes a repository in the current folder, and prints nothing. Status 0; 3 where one is already here.
Example: testr init
";

const LOAD: &str = "\
usage: testr load [--partial] [--force-init] [--expect=FILE] [--live=KIND] [--format=KIND] [--subunit] [-q] [FILE ..]
Reads a Subunit v2 stream from standard input, keeps it as the next run, and prints its report. Status 0 where no test
failed, 1 where one did.
  --partial    the run is marked as one of a part of the tests
  --force-init makes a repository first where there is none
  --expect=FILE
               tells on standard error which tests that the file lists, one a line, did not run; status 1 where one did not
  --live=KIND  tells on standard error of each test that completes: tests, failures, dots or none; on a terminal it is
               tests where nothing is said, unless -q is
  --format=KIND
               github prints behind the report a note for each test that failed, which a build server shows at its line
  --subunit    prints the run itself as it is kept, a stream of packets, and no report; status 0 where it is kept
  -q, --quiet  prints no report; the status says whether a test failed
  FILE ..      reads these files in place of standard input, at most 64, one after another, as one run; what is kept of
               the first is under the route 0, of the next one under 1, and so on
Example: testr load < stream
";

const RUN: &str = "\
usage: testr run [OPTION..] [PATTERN..] [-- WORD..]
Runs the tests of the project, as the file .testr.conf, .stestr.conf or pyproject.toml of the current folder says, keeps
what they print as the next run, and prints its report. Status 0 where no test failed, 1 where one did, or where none ran
that was asked for. Tests that were asked for and did not run are told of on standard error.
  --partial         the run is marked as one of a part of the tests; so it is with each option or PATTERN that chooses tests
  --failing         only tests that fail by all runs
  --load-list=FILE  only tests whose ids the file lists, one a line
  PATTERN..         only tests in whose ids one of these regular expressions is found
  --include-list=FILE
                    the file has more of these, one a line; what stands behind a # is a comment
  --exclude-regex=PATTERN
                    without the tests in whose ids this one is found; it may be repeated
  --exclude-list=FILE
                    the file has more of these
  --shard=K/N       of these only the K-th of N parts, by groups and names; each test is in one of them
  --times=FILE      with --shard: the parts go by the times of this file, a copy of .testrepository/times.set
  --parallel        in several workers at once; behind stestr it stands, and --serial takes it away
  --concurrency=N   in N workers, at most 64; without it, or with 0, as test_run_concurrency says, or as many as processors;
                    a line on standard error tells where N is more
  --force-init      makes a repository first where there is none
  --test-path=P, --top-dir=D, --group-regex=PATTERN
                    stand before these settings of stestr, the last one before that of any project
  -- WORD..         puts these words behind the command of each worker
  --find-causes     behind the report, looks for the test that makes each failing one fail, by runs of some of the tests
  --live=KIND       tells on standard error of each test that completes: tests, failures, dots or none; on a terminal it is
                    tests where nothing is said, unless -q is
  --format=KIND     github prints behind the report a note for each test that failed, which a build server shows at its line
  --subunit         prints the run itself as it goes on, a stream of packets, and no report; status 0 where it is kept
  -q, --quiet       prints no report, and nothing behind it; the status says whether a test failed
Example: testr run --parallel
";

const LIST_TESTS: &str = "\
usage: testr list-tests [--exclude-regex=PATTERN ..] [--exclude-list=FILE] [--include-list=FILE] [--shard=K/N]
                        [--times=FILE] [--test-path=P] [--top-dir=D] [PATTERN..]
Prints the ids of the tests of the project, as the configuration in the current folder has them listed. Status 0.
It needs no repository.
  PATTERN..    only ids in which one of these regular expressions is found
  The options choose ids and leave ids out, as those of testr run do with tests.
Example: testr list-tests '^core'
";

const LAST: &str = "\
usage: testr last [--skips] [--format=KIND] [-q], or testr last --subunit
Prints the report of the last run. Status 0 where no test of it failed, 1 where one did.
  --skips      prints behind it why tests were skipped, and how many for each reason
  --format=KIND
               github prints behind it a note for each test that failed, which a build server shows at its line; text does not
  --subunit    prints the last run itself, a stream of packets; status 0
  -q, --quiet  prints no report; the status says whether a test of it failed
Example: testr last
";

const FAILING: &str = "\
usage: testr failing [--list | --full | --subunit]
Prints the tests that fail by all runs, and their number. Status 0 where there are none, else 1.
  --list       prints their ids alone, as a list for other programs
  --full       prints of each how it failed last, with its text, as a report does
  --subunit    prints of each how it failed last, a stream of packets; status 0
Example: testr failing --list > ids
";

const SLOWEST: &str = "\
usage: testr slowest [--all]
Prints the slowest ten tests of the last run. Status 0.
  --all        prints all of its tests that have a time, the slowest first
Example: testr slowest --all
";

const STATS: &str = "\
usage: testr stats
Prints how many runs there are. Status 0.
Example: testr stats
";

const UPGRADE: &str = "\
usage: testr upgrade [--from=DIR]
Makes the folder .testrepository, which the original testr made, a repository of its runs and of the tests that failed last,
and prints how many runs there are. The old files stay; until it is done the original testr goes on with them. Status 0; 3
where there is nothing to upgrade, or a file is damaged.
  --from=DIR   copies the old files of DIR first, as of .stestr, into a .testrepository that holds no others. DIR stays as it is
Example: testr upgrade --from=.stestr
";

const SELFTEST: &str = "\
usage: testr selftest SEED LANES TESTS
Makes up workers, runs them in memory as testr run runs those of a project, and prints the summary of their run. The same
numbers give the same lines. Status 0 where no test failed, 1 where one did. It needs no repository, and changes none.
  SEED     what the tests are drawn from, a number of at most nine digits
  LANES    how many workers there are, 1 to 64
  TESTS    how many tests each of them has, at least 1; of all workers together 1,000,000 at most
Example: testr selftest 7 2 2
";
