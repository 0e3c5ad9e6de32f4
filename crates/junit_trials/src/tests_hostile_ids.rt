//! Ids that look like markup, and characters that XML cannot say. An id is a text, so it has no NUL and is UTF-8.

use crate::rows::Told;
use crate::written::is_case;
use outcome_fold::Ended;

// A row, and its case.
type Case = (Told, &'static [u8]);

const IDS: [Case; 7] = [
    (
        (b"a\"b<c>d&e'f", Ended::Success, None, b""),
        b"<testcase classname=\"\" name=\"a&quot;b&lt;c&gt;d&amp;e'f\" time=\"0.000\">\n</testcase>\n",
    ),
    (
        (b"a\tb.c\nd\re", Ended::Success, None, b""),
        b"<testcase classname=\"a&#9;b\" name=\"c&#10;d&#13;e\" time=\"0.000\">\n</testcase>\n",
    ),
    (
        (
            b"x\" time=\"0.000\">\n</testcase>\n<testcase classname=\"\" name=\"forged",
            Ended::Success,
            None,
            b"",
        ),
        b"<testcase classname=\"x&quot; time=&quot;0\" name=\"000&quot;&gt;&#10;&lt;/testcase&gt;&#10;&lt;testcase classname=&quot;&quot; name=&quot;forged\" time=\"0.000\">\n</testcase>\n",
    ),
    (
        (b"&amp;&#9;]]>", Ended::Success, None, b""),
        b"<testcase classname=\"\" name=\"&amp;amp;&amp;#9;]]&gt;\" time=\"0.000\">\n</testcase>\n",
    ),
    (
        (b"\x01\x1f\x7f", Ended::Success, None, b""),
        b"<testcase classname=\"\" name=\"\xef\xbf\xbd\xef\xbf\xbd\x7f\" time=\"0.000\">\n</testcase>\n",
    ),
    (
        (
            b"\xef\xbf\xbe\xef\xbf\xbf\xef\xbf\xbd",
            Ended::Success,
            None,
            b"",
        ),
        b"<testcase classname=\"\" name=\"\xef\xbf\xbd\xef\xbf\xbd\xef\xbf\xbd\" time=\"0.000\">\n</testcase>\n",
    ),
    (
        (
            b"h\xc3\xa9.\xe2\x82\xac\xf0\x9f\x98\x80",
            Ended::Success,
            None,
            b"",
        ),
        b"<testcase classname=\"h\xc3\xa9\" name=\"\xe2\x82\xac\xf0\x9f\x98\x80\" time=\"0.000\">\n</testcase>\n",
    ),
];

#[test]
fn no_id_breaks_its_case(rt: HostRuntime) {
    let alloc = rt.alloc();
    for (number, (told, wanted)) in IDS.iter().enumerate() {
        assert!(rt; is_case(alloc, told, wanted), "id {number}");
    }
}
