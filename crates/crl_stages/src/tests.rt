//! Tests: regions are asked for, deleted and parted with.
ghost use Rattle.std.specs.Prelude.{◌≡◌, ◌<◌};
ghost use Rattle.crl_stages.specs.StagesState.{KeepsSize};

use crate::Stages;
use crl_model::stage::Stage;
use crl_model::{NodeNo, OutOfMemory};

/// The delete of the region begins, if it is live.
fn delete(stages: &mut Stages, serial: u32, deleter: NodeNo)
    ensures { KeepsSize stages.old stages.new }
{
    if matches!(stages.stage(serial), Stage::Live) {
        stages.begin_delete(serial, deleter);
    }
}

/// The node has parted with its copy, if a delete waits for it.
fn part_with(stages: &mut Stages, serial: u32, from: NodeNo)
    requires { from < stages.old.nodes }
    ensures { KeepsSize stages.old stages.new }
{
    if stages.is_missing(serial, from) {
        stages.take_purged(serial, from);
    }
}

#[test]
fn a_delete_waits_for_two_nodes(rt: HostRuntime) -> Result<(), OutOfMemory> {
    let mut stages = Stages::new(rt.alloc(), 4);
    stages.ready_serial()?;
    stages.add_live();
    stages.add_asker(1, 3);
    stages.add_asker(1, 0);
    assert_eq!(rt; stages.len(), 1);
    delete(&mut stages, 1, 2);
    assert_eq!(rt; stages.stage(1), Stage::Going(2));
    stages.add_asker(1, 1);
    part_with(&mut stages, 1, 3);
    assert_eq!(rt; stages.stage(1), Stage::Going(2));
    part_with(&mut stages, 1, 0);
    assert_eq!(rt; stages.stage(1), Stage::Gone);
    Ok(())
}

#[test]
fn a_delete_without_askers_is_done(rt: HostRuntime) -> Result<(), OutOfMemory> {
    let mut stages = Stages::new(rt.alloc(), 4);
    stages.ready_serial()?;
    stages.skip();
    stages.ready_serial()?;
    stages.add_live();
    assert_eq!(rt; stages.stage(1), Stage::Unknown);
    delete(&mut stages, 2, 1);
    assert_eq!(rt; stages.stage(2), Stage::Gone);
    assert_eq!(rt; stages.stage(3), Stage::Unknown);
    Ok(())
}
