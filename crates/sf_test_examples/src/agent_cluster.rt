//! Origin-Agent-Cluster, an Item: `?1` requests an agent cluster for the origin alone.
use sf_field::{Consumer, UseFault, ask};
use sf_value::{Bare, Blob, Field, Kind};
use std::alloc::Global;
use std::hash::RandomState;
use std::test::Fail;

/// Reads Origin-Agent-Cluster; the answer is whether it is the Boolean true.
#[derive(Clone, Copy)]
pub struct AgentCluster;

impl Consumer for AgentCluster {
    ghost use Rattle.std.specs.Prelude.{Ok};
    ghost use Rattle.sf_value.specs.declared.value.Kind.TheVariants as kind_is;
    ghost use Rattle.sf_test_examples.specs.AgentCluster.{asks};

    type Answer = bool;

    const KIND: Kind = Kind::Item;

    ghost KIND = { kind_is.Item };

    ghost meaning = { λ _ field. Ok (asks field) };

    fn answer(&self, _alloc: Global, field: &Field) -> Result<bool, UseFault> {
        match field {
            Field::Item(item) => Ok(matches!(item.bare, Bare::Boolean(true))),
            _ => Ok(false),
        }
    }
}

#[test]
fn an_origin_asks(rt: HostRuntime) -> Result<(), Fail> {
    let alloc = rt.alloc();
    let seed = RandomState::new(&rt)?;
    let lines = [Blob::new(alloc, b"?1;a=2")?];
    assert!(&rt; ask(alloc, &seed, &AgentCluster, &lines)?);
    Ok(())
}

#[test]
fn an_origin_does_not_ask(rt: HostRuntime) -> Result<(), Fail> {
    let alloc = rt.alloc();
    let seed = RandomState::new(&rt)?;
    let lines = [Blob::new(alloc, b"1")?];
    assert!(&rt; !ask(alloc, &seed, &AgentCluster, &lines)?);
    Ok(())
}
