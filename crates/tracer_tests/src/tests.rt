// Steps as lines, and the board after them.
use board::Board;
use cpu::Answer;
use layout::{FIRST_REGISTERS, board_bus, board_config};
use report::{Outcome, StepLine};
use std::test::Fail;
use tracer::steps;

// Memory is all zero at first, and the word 0 is a shift of r0 by no place (opcode 0, `srui`): each step is done, moves PC from 0 by 4 and counts.
#[test]
fn a_board_goes_on_after_its_steps(rt: HostRuntime) -> Result<(), Fail> {
    let heap = rt.alloc();
    let mut board = Board::power(board_config(), FIRST_REGISTERS, board_bus(heap)?);
    let lines = steps(heap, &mut board, 2)?;
    let done = Outcome::Done(0);
    assert!(rt; lines.len() == 2);
    assert!(rt;
        lines[0]
            == StepLine {
                step: 1,
                pc: 0,
                outcome: done
            }
    );
    assert!(rt;
        lines[1]
            == StepLine {
                step: 2,
                pc: 4,
                outcome: done
            }
    );
    assert!(rt; board.step() == Answer::Done(0));
    // PC and CC by their indices
    assert!(rt; board.show(32) == Ok(12));
    assert!(rt; board.show(39) == Ok(3));
    assert!(rt; board.look(0) == Ok(0));
    Ok(())
}
