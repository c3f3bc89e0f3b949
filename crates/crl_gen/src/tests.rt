//! Tests: a small script, as it is printed.
ghost use Rattle.std.specs.Prelude.{◌≡◌};

use crate::make;
use crl_model::OutOfMemory;
use crl_script::print_script;

/// What a program of its own makes of seed 42 for 2 nodes, 3 regions and 2 rounds.
const SMALL: &[u8] = b"\
nodes 2
cache 16
node 0
create r0_1 16
create r0_2 16
barrier
map r0_1
map r1_1
map r0_2
read r1_1
endread r1_1
read r1_1
endread r1_1
barrier
unmap r0_1
unmap r1_1
unmap r0_2
node 1
create r1_1 16
barrier
map r0_1
map r1_1
map r0_2
write r0_1
add r0_1 0 1
endwrite r0_1
unmap r1_1
map r1_1
barrier
unmap r0_1
unmap r1_1
unmap r0_2
";

#[test]
fn a_seed_makes_its_script(rt: HostRuntime) -> Result<(), OutOfMemory> {
    let script = make(rt.alloc(), 42, 2, 3, 2)?;
    let text = print_script(rt.alloc(), &script)?;
    assert!(rt; text.as_slice() == SMALL);
    Ok(())
}
