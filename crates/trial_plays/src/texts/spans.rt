//! Outside cases of JSON.
use json_spans::JsonFault::{NotUtf8, Syntax};
use json_spans::{JsonFault, cut};

/// The examples of RFC 8259, section 13.
const IMAGE: &[u8] = br#"{
  "Image": {
      "Width":  800,
      "Height": 600,
      "Title":  "View from 15th Floor",
      "Thumbnail": {
          "Url":    "http://www.example.com/image/481989943",
          "Height": 125,
          "Width":  100
      },
      "Animated" : false,
      "IDs": [116, 943, 234, 38793]
    }
}"#;

const PLACES: &[u8] = br#"[
  {
     "precision": "zip",
     "Latitude":  37.7668,
     "Longitude": -122.3959,
     "Address":   "",
     "City":      "SAN FRANCISCO",
     "State":     "CA",
     "Zip":       "94107",
     "Country":   "US"
  },
  {
     "precision": "zip",
     "Latitude":  37.371991,
     "Longitude": -122.026020,
     "Address":   "",
     "City":      "SUNNYVALE",
     "State":     "CA",
     "Zip":       "94085",
     "Country":   "US"
  }
]"#;

/// The standard's examples, its literals and numbers, and each kind of refusal at its byte.
const CASES: &[(&[u8], Option<JsonFault>)] = &[
    (b"", Some(Syntax { at: 0 })),
    (b" ", Some(Syntax { at: 1 })),
    (b"null", None),
    (b" true\r\n", None),
    (b"false\t", None),
    (b"nul", Some(Syntax { at: 3 })),
    (b"nulL", Some(Syntax { at: 3 })),
    (b"truee", Some(Syntax { at: 4 })),
    (b"True", Some(Syntax { at: 0 })),
    (b"0", None),
    (b"-0", None),
    (b"-", Some(Syntax { at: 1 })),
    (b"-a", Some(Syntax { at: 1 })),
    (b"+1", Some(Syntax { at: 0 })),
    (b"01", Some(Syntax { at: 1 })),
    (b"-01", Some(Syntax { at: 2 })),
    (b"10", None),
    (b"1.", Some(Syntax { at: 2 })),
    (b"1.0", None),
    (b".5", Some(Syntax { at: 0 })),
    (b"1.e1", Some(Syntax { at: 2 })),
    (b"1e", Some(Syntax { at: 2 })),
    (b"1e+", Some(Syntax { at: 3 })),
    (b"1e+5", None),
    (b"1E-07", None),
    (b"1e5.0", Some(Syntax { at: 3 })),
    (b"-0.0e-0", None),
    (b"0x1", Some(Syntax { at: 1 })),
    (b"NaN", Some(Syntax { at: 0 })),
    (b"Infinity", Some(Syntax { at: 0 })),
    (b"\"\"", None),
    (b"\"a", Some(Syntax { at: 2 })),
    (b"'a'", Some(Syntax { at: 0 })),
    (b"\"\t\"", Some(Syntax { at: 1 })),
    (b"\"\x7f\"", None),
    (b"\"\\\"", Some(Syntax { at: 3 })),
    (b"\"\\/\\\\\\b\\f\\n\\r\\t\\\"\"", None),
    (b"\"\\a\"", Some(Syntax { at: 2 })),
    (b"\"\\u12\"", Some(Syntax { at: 5 })),
    (b"\"\\u00e9\\uABCD\"", None),
    (b"\"\\U0041\"", Some(Syntax { at: 2 })),
    (b"\"\\ud83d\\ude00\"", None),
    (b"\"\\uD834\\uDd1E\"", None),
    (b"\"\\ud800\"", Some(Syntax { at: 1 })),
    (b"\"ab\\udc00\"", Some(Syntax { at: 3 })),
    (b"\"\\ud800\\u0041\"", Some(Syntax { at: 1 })),
    (b"\"\\ud800x\"", Some(Syntax { at: 1 })),
    (b"\"\\ud800", Some(Syntax { at: 1 })),
    (b"\"\\ud800\\udc", Some(Syntax { at: 1 })),
    (b"\"\\ud80", Some(Syntax { at: 6 })),
    (b"\"\\udcZ0\"", Some(Syntax { at: 5 })),
    (b"\"\\ud83d\\ude00\\ude00\"", Some(Syntax { at: 13 })),
    (b"[]", None),
    (b"[ ]", None),
    (b"[", Some(Syntax { at: 1 })),
    (b"]", Some(Syntax { at: 0 })),
    (b"[1,]", Some(Syntax { at: 3 })),
    (b"[,1]", Some(Syntax { at: 1 })),
    (b"[1 2]", Some(Syntax { at: 3 })),
    (b"[1}", Some(Syntax { at: 2 })),
    (b"[[[]]]", None),
    (b"{}", None),
    (b"{\"a\"}", Some(Syntax { at: 4 })),
    (b"{\"a\":}", Some(Syntax { at: 5 })),
    (b"{\"a\":1,}", Some(Syntax { at: 7 })),
    (b"{a:1}", Some(Syntax { at: 1 })),
    (b"{\"a\":1 \"b\":2}", Some(Syntax { at: 7 })),
    (b"{\"a\" : [ 1 , { } ] }", None),
    (b"{\"a\":1]", Some(Syntax { at: 6 })),
    (b"{1:1}", Some(Syntax { at: 1 })),
    (b"1 1", Some(Syntax { at: 2 })),
    (b"{}{}", Some(Syntax { at: 2 })),
    (b"\xef\xbb\xbf1", Some(Syntax { at: 0 })),
    (b"\"\xff\"", Some(NotUtf8)),
    (b"1\xff", Some(NotUtf8)),
    (b"\"\xed\xa0\x80\"", Some(NotUtf8)),
    (IMAGE, None),
    (PLACES, None),
    (b"\"Hello world!\"", None),
    (b"42", None),
    (b"true", None),
    (b"\"\\uDEAD\"", Some(Syntax { at: 1 })),
    (b"\"\x00\"", Some(Syntax { at: 1 })),
    (b"\"\\u0000\"", None),
    (b"\"\xe2\x80\xa8\"", None),
    (b"\x0c1", Some(Syntax { at: 0 })),
    (b"[1e400]", None),
    (b"[1,,1]", Some(Syntax { at: 3 })),
    (b"{\"\":0}", None),
    (b"[1]//", Some(Syntax { at: 3 })),
];

fn fault_of(text: &[u8]) -> Option<JsonFault> {
    match cut(text) {
        Ok(_) => None,
        Err(fault) => Some(fault),
    }
}

fn are_cut(cases: &[(&[u8], Option<JsonFault>)]) -> bool {
    for (text, fault) in cases {
        if fault_of(text) != *fault {
            return false;
        }
    }
    true
}

#[test]
fn outside_cases(rt: HostRuntime) {
    assert!(rt; are_cut(CASES));
}
