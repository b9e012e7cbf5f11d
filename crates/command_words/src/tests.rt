use crate::{Form, form_of};
use std::test::Fail;

/// The form of these words.
fn reads(rt: HostRuntime, line: &[&str], wanted: Option<Form<'_>>) -> Result<bool, Fail> {
    let mut words = Vec::new(rt.alloc());
    for word in line {
        words.push(String::from_str(rt.alloc(), word)?)?;
    }
    Ok(form_of(rt.alloc(), words.as_slice())? == wanted)
}

#[test]
fn reads_each_form(rt: HostRuntime) -> Result<(), Fail> {
    assert!(rt; reads(rt, &["session", "1"], Some(Form::Session { units: 1 }))?);
    assert!(rt;
        reads(
            rt,
            &["session", "8796093022207"],
            Some(Form::Session {
                units: 8796093022207
            })
        )?
    );
    assert!(rt; reads(rt, &["imap"], Some(Form::Imap { account: None }))?);
    assert!(rt;
        reads(
            rt,
            &["imap", "ann"],
            Some(Form::Imap {
                account: Some(b"ann")
            })
        )?
    );
    assert!(rt; reads(rt, &["imap", ""], Some(Form::Imap { account: Some(b"") }))?);
    assert!(rt; reads(rt, &["policy"], Some(Form::Policy))?);
    assert!(rt; reads(rt, &["check"], Some(Form::Check))?);
    assert!(rt; reads(rt, &["workload", "1"], Some(Form::Workload { requests: 1 }))?);
    assert!(rt;
        reads(
            rt,
            &["workload", "4096"],
            Some(Form::Workload { requests: 4096 })
        )?
    );
    Ok(())
}

#[test]
fn refuses_other_words(rt: HostRuntime) -> Result<(), Fail> {
    let lines: [&[&str]; 43] = [
        &[],
        &[""],
        &["serve"],
        &["Session", "1"],
        &["sess", "1"],
        &["help"],
        &["help", "imap"],
        &["--help"],
        &["-h"],
        &["--version"],
        &["-V"],
        &["--"],
        &["-"],
        &["-x"],
        &["--", "check"],
        &["check", "--"],
        &["imap", "--help"],
        &["imap", "-ann"],
        &["imap", "help", "-h"],
        &["session"],
        &["session", ""],
        &["session", "0"],
        &["session", "01"],
        &["session", "+1"],
        &["session", "-1"],
        &["session", "1x"],
        &["session", " 1"],
        &["session", "8796093022208"],
        &["session", "10000000000000000001"],
        &["session", "1", "2"],
        &["imap", "ann", "bob"],
        &["policy", ""],
        &["policy", "ann"],
        &["check", "check"],
        &["workload"],
        &["workload", "0"],
        &["workload", "01"],
        &["workload", "4097"],
        &["workload", "x"],
        &["workload", "-1"],
        &["workload", "1", "2"],
        &["jmap"],
        &["recalc", "ann"],
    ];
    for line in lines {
        assert!(rt; reads(rt, line, None)?);
    }
    Ok(())
}
