// A fault that stays, the positions of faults in single texts, and texts that are one number or a literal.
ghost use Rattle.std.specs.Prelude.{◌≡◌};
ghost use Rattle.jv_text.specs.Cutting.{fed_count, is_finished};

use jv_data::Val;
use jv_text::{Cutter, Fault, read_text, to_compact_string};
use std::process::Abort;
use std::test::Fail;

// This fault comes, and comes again.
fn stays(cutter: &mut Cutter, fault: Fault) -> bool
    ensures open { is_finished cutter.new ≡ is_finished cutter.old }
    ensures count { fed_count cutter.new ≡ fed_count cutter.old }
{
    let (first, second) = (cutter.next().err(), cutter.next().err());
    first == Some(fault) && second == Some(fault)
}

#[test]
fn a_fault_stays(rt: HostRuntime) -> Result<(), Fail> {
    let fault = Fault::Malformed { at: 2 };
    let mut cutter = Cutter::new(rt.alloc());
    cutter.feed(b"1 ] 2")?;
    assert!(rt; matches!(&cutter.next(), Ok(Some(Val::Num(1)))));
    assert!(rt; stays(&mut cutter, fault));
    cutter.feed(b" 3")?;
    assert!(rt; stays(&mut cutter, fault));
    cutter.finish();
    assert!(rt; stays(&mut cutter, fault));
    Ok(())
}

static PLACES: [(&str, Fault); 7] = [
    ("", Fault::Unfinished { at: 0 }),
    ("  ", Fault::Unfinished { at: 2 }),
    ("1 2", Fault::Malformed { at: 2 }),
    ("1 [", Fault::Malformed { at: 2 }),
    ("1.5 2", Fault::NotWhole { at: 0 }),
    (" {\"a\":", Fault::Unfinished { at: 1 }),
    ("\u{feff}1", Fault::Malformed { at: 0 }),
];

#[test]
fn places_of_faults(rt: HostRuntime) {
    for (text, fault) in &PLACES {
        check_fault(&rt, *text, *fault);
    }
}

fn check_fault(rt: &(impl Abort + AllocGlobal), text: &str, fault: Fault) {
    let found = read_text(rt.alloc(), text.as_bytes()).err();
    assert_eq!(rt; found, Some(fault), "{text}");
}

static PRINTED: [(&str, &str); 15] = [
    ("0", "0"),
    ("-0", "0"),
    ("7", "7"),
    (" -7\n", "-7"),
    ("999999999999999999", "999999999999999999"),
    ("-999999999999999999", "-999999999999999999"),
    ("1000000000000000000", "1000000000000000000"),
    ("9223372036854775807", "9223372036854775807"),
    ("-9223372036854775808", "-9223372036854775808"),
    ("1.0", "1"),
    ("1e2", "100"),
    ("-1E1", "-10"),
    (" true", "true"),
    ("false ", "false"),
    ("null", "null"),
];

static MALFORMED: [&str; 10] = [
    "007", "-007", "-", "--1", "1-", "+1", "1a", "nul", "nulll", "True",
];

static NOT_WHOLE: [&str; 3] = ["1.5", "9223372036854775808", "-9223372036854775809"];

// Whole numbers of at most 18 digits and literals are read without tokens, other texts with them.
#[test]
fn texts_of_one_number_or_literal(rt: HostRuntime) -> Result<(), Fail> {
    for (text, printed) in &PRINTED {
        let value = read_text(rt.alloc(), text.as_bytes())?;
        let found = to_compact_string(rt.alloc(), &value)?;
        assert_eq!(rt; found.as_str(), *printed, "{text}");
    }
    for text in &MALFORMED {
        check_fault(&rt, *text, Fault::Malformed { at: 0 });
    }
    for text in &NOT_WHOLE {
        check_fault(&rt, *text, Fault::NotWhole { at: 0 });
    }
    Ok(())
}
