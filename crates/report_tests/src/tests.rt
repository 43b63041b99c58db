// What numbers, lines and a whole trace look like.
use report::{Outcome, StepLine, decimal, end_line, refusal_line, trace};
use std::test::Fail;

#[test]
fn decimals(rt: HostRuntime) -> Result<(), Fail> {
    let heap = rt.alloc();
    assert!(rt; decimal(heap, 0)?.as_str() == "0");
    assert!(rt; decimal(heap, 9)?.as_str() == "9");
    assert!(rt; decimal(heap, 10)?.as_str() == "10");
    assert!(rt; decimal(heap, 4294967295)?.as_str() == "4294967295");
    assert!(rt; decimal(heap, u64::MAX)?.as_str() == "18446744073709551615");
    Ok(())
}

#[test]
fn refusals(rt: HostRuntime) -> Result<(), Fail> {
    let heap = rt.alloc();
    assert!(rt; refusal_line(heap, 0, 65536)?.as_str() == "refused,0,65536\n");
    assert!(rt; refusal_line(heap, 13, 0)?.as_str() == "refused,13,0\n");
    Ok(())
}

fn step(number: u32, pc: u32, outcome: Outcome) -> StepLine {
    StepLine {
        step: number,
        pc,
        outcome,
    }
}

#[test]
fn lines(rt: HostRuntime) -> Result<(), Fail> {
    let heap = rt.alloc();
    let first = step(1, 0, Outcome::Done(0x98000000));
    assert!(rt; first.text(heap)?.as_str() == "1,00000000,D,98000000\n");
    let last = step(64, 0xfffffffc, Outcome::Stopped(10));
    assert!(rt; last.text(heap)?.as_str() == "64,FFFFFFFC,S,0000000A\n");
    assert!(rt; end_line(heap, 1, 1)?.as_str() == "end,1,1\n");
    Ok(())
}

#[test]
fn whole(rt: HostRuntime) -> Result<(), Fail> {
    let steps = [
        step(1, 0, Outcome::Done(0x98000000)),
        step(2, 4, Outcome::Taken(7)),
        step(3, 0xe0, Outcome::Stopped(8)),
    ];
    let text = trace(rt.alloc(), &steps)?;
    assert!(rt;
        text.as_str()
            == "n,pc,kind,value\n1,00000000,D,98000000\n2,00000004,X,00000007\n3,000000E0,S,00000008\nend,1,1\n"
    );
    Ok(())
}
