//! A made script, and the summary of a run of it.

use ks_generator::{Size, made_script, summary};
use ks_history::{Op, Reply};
use ks_lines::{Line, Said};
use ks_script::{Printed, Replies};
use std::test::Fail;

#[test]
fn makes_and_sums_up_two_calls(rt: HostRuntime) -> Result<(), Fail> {
    let script = made_script(rt.alloc(), 1, 2, 0)?;
    assert_eq!(rt; script.callers.len(), 1);
    assert!(rt;
        script.callers[0].len() == 2
            && script.callers[0].get(0) == Line::Call(Op::Del(8))
            && script.callers[0].get(1) == Line::Call(Op::Put(116, 823830125))
    );
    let mut said = Replies::new(rt.alloc());
    said.push(Said::Call(0, Reply::Nothing))?;
    said.push(Said::Call(1, Reply::Nothing))?;
    let printed = Printed {
        callers: vec![in rt.alloc(); said]?,
        pairs: vec![in rt.alloc(); (116, 823830125)]?,
    };
    let text = summary(rt.alloc(), Size::of(&script), &printed)?;
    assert!(rt;
        text.as_slice()
            == b"callers 1\ncalls 2\nfound 0\nnone 2\nfull 0\npairs 1\nsum 95564294500\n".as_slice()
    );
    Ok(())
}
