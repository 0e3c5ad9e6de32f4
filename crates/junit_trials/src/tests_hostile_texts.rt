//! Texts of tests that look like markup, and bytes that are no UTF-8.

use crate::rows::Told;
use crate::written::put_case;
use outcome_fold::Ended;
use std::alloc::Global;

// A text, and what is written of it.
type Written = (&'static [u8], &'static [u8]);

const TEXTS: [Written; 13] = [
    (b"plain\n", b"plain\n"),
    (b"tab\tnewline\nreturn\r\n", b"tab\tnewline\nreturn\r\n"),
    (
        b"1 < 2 && 'a' > \"b\"",
        b"1 &lt; 2 &amp;&amp; 'a' &gt; &quot;b&quot;",
    ),
    (b"]]>", b"]]&gt;"),
    (
        b"</failure>\n</testcase>\n<testcase classname=\"\" name=\"forged\" time=\"0.000\">\n",
        b"&lt;/failure&gt;\n&lt;/testcase&gt;\n&lt;testcase classname=&quot;&quot; name=&quot;forged&quot; time=&quot;0.000&quot;&gt;\n",
    ),
    (
        b"<!-- <![CDATA[ <?x ?>",
        b"&lt;!-- &lt;![CDATA[ &lt;?x ?&gt;",
    ),
    // A NUL and an escape.
    (b"a\0b\x1b[0m", b"a\xef\xbf\xbdb\xef\xbf\xbd[0m"),
    // A byte that begins nothing, and one that continues nothing.
    (b"\xff\x80", b"\xef\xbf\xbd\xef\xbf\xbd"),
    // The front of a character of three bytes, and of one of four, in the middle and at the end.
    (b"\xe2\x82.\xf0\x9f\x98", b"\xef\xbf\xbd.\xef\xbf\xbd"),
    // A lone surrogate: no byte of it belongs to the next.
    (b"\xed\xa0\x80", b"\xef\xbf\xbd\xef\xbf\xbd\xef\xbf\xbd"),
    // A sign of markup spelled too long.
    (b"\xc0\xbc", b"\xef\xbf\xbd\xef\xbf\xbd"),
    (b"\xef\xbf\xbe\xef\xbf\xbf", b"\xef\xbf\xbd\xef\xbf\xbd"),
    // The last character of the first planes, and one past the last.
    (
        b"\xed\x9f\xbf\xee\x80\x80\xf4\x8f\xbf\xbf\xf4\x90\x80\x80",
        b"\xed\x9f\xbf\xee\x80\x80\xf4\x8f\xbf\xbf\xef\xbf\xbd\xef\xbf\xbd\xef\xbf\xbd\xef\xbf\xbd",
    ),
];

const BEFORE: &[u8] =
    b"<testcase classname=\"\" name=\"a\" time=\"0.000\">\n<failure type=\"fail\">";

const BEHIND: &[u8] = b"</failure>\n</testcase>\n";

// What the case of a failure with this text should be.
fn put_wanted(written: &[u8], out: &mut Vec<u8>) -> Option<()> {
    out.extend_from_slice(BEFORE).ok()?;
    out.extend_from_slice(written).ok()?;
    out.extend_from_slice(BEHIND).ok()
}

fn is_written(alloc: Global, text: &'static [u8], written: &[u8]) -> bool {
    let told: Told = (b"a", Ended::Fail, None, text);
    let mut wanted = Vec::new(alloc);
    let mut out = Vec::new(alloc);
    put_wanted(written, &mut wanted).is_some()
        && put_case(alloc, &told, &mut out).is_some()
        && out.as_slice() == wanted.as_slice()
}

#[test]
fn no_text_breaks_its_failure(rt: HostRuntime) {
    let alloc = rt.alloc();
    for (number, (text, written)) in TEXTS.iter().enumerate() {
        assert!(rt; is_written(alloc, *text, written), "text {number}");
    }
}
