use std::mem::size_of;
use vh_design::{Block, Instruction, Operation, ShowCall, StmtInfo, Term};

// 4 million statements are to fit.
#[test]
fn instructions_are_small(rt: HostRuntime) {
    assert_eq!(rt; size_of::<Operation>(), 32);
    assert_eq!(rt; size_of::<Instruction>(), 64);
    assert_eq!(rt; size_of::<Block>(), 20);
    assert_eq!(rt; size_of::<Term>(), 20);
    assert_eq!(rt; size_of::<ShowCall>(), 40);
    assert_eq!(rt; size_of::<StmtInfo>(), 20);
}
