ghost use Rattle.std.specs.Prelude.{◌≡◌, drop};

use crate::{CoreNo, Numbered, Pool};
use std::test::Fail;

#[derive(Drop)]
struct Spare {
    core: CoreNo,
}

impl Numbered for Spare {
    ghost number_of = { λ s. s.core.0 };

    fn number(&self) -> CoreNo {
        self.core
    }
}

#[derive(Drop)]
struct Fenced {
    core: CoreNo,
}

impl Numbered for Fenced {
    ghost number_of = { λ f. f.core.0 };

    fn number(&self) -> CoreNo {
        self.core
    }
}

fn next(pool: &mut Pool<Spare, Fenced>) -> Option<CoreNo>
    ensures spares { pool.new.spares ≡ drop 1 pool.old.spares }
    ensures fenced { pool.new.fenced ≡ pool.old.fenced }
{
    Some(pool.take()?.number())
}

#[test]
fn lowest_spare_first(rt: HostRuntime) -> Result<(), Fail> {
    let mut pool: Pool<Spare, Fenced> = Pool::new(rt.alloc())?;
    pool.add(Spare { core: CoreNo(9) });
    pool.add(Spare { core: CoreNo(15) });
    pool.add(Spare { core: CoreNo(8) });
    pool.add(Spare { core: CoreNo(12) });
    for core in [8, 9, 12, 15] {
        assert_eq!(rt; pool.lowest(), Some(CoreNo(core)));
        assert_eq!(rt; next(&mut pool), Some(CoreNo(core)));
    }
    assert_eq!(rt; pool.lowest(), None);
    assert_eq!(rt; next(&mut pool), None);
    Ok(())
}

#[test]
fn spare_taken(rt: HostRuntime) -> Result<(), Fail> {
    let mut pool: Pool<Spare, Fenced> = Pool::new(rt.alloc())?;
    pool.add(Spare { core: CoreNo(8) });
    assert_eq!(rt; next(&mut pool), Some(CoreNo(8)));
    pool.fence(Fenced { core: CoreNo(0) });
    assert_eq!(rt; pool.lowest(), None);
    Ok(())
}

#[test]
fn no_spare(rt: HostRuntime) -> Result<(), Fail> {
    let mut pool: Pool<Spare, Fenced> = Pool::new(rt.alloc())?;
    assert_eq!(rt; pool.lowest(), None);
    assert_eq!(rt; next(&mut pool), None);
    pool.fence(Fenced { core: CoreNo(0) });
    assert_eq!(rt; pool.lowest(), None);
    assert_eq!(rt; next(&mut pool), None);
    Ok(())
}

// A spare that is not used, since a word of the failing core is lost, stays a spare.
#[test]
fn spare_put_back(rt: HostRuntime) -> Result<(), Fail> {
    let mut pool: Pool<Spare, Fenced> = Pool::new(rt.alloc())?;
    pool.add(Spare { core: CoreNo(9) });
    pool.add(Spare { core: CoreNo(8) });
    assert_eq!(rt; next(&mut pool), Some(CoreNo(8)));
    pool.put_back(Spare { core: CoreNo(8) });
    pool.fence(Fenced { core: CoreNo(0) });
    assert_eq!(rt; pool.lowest(), Some(CoreNo(8)));
    Ok(())
}

// Core 0 is fenced, returned and taken again, and then core 8 is fenced.
#[test]
fn repaired_core(rt: HostRuntime) -> Result<(), Fail> {
    let mut pool: Pool<Spare, Fenced> = Pool::new(rt.alloc())?;
    pool.add(Spare { core: CoreNo(8) });
    assert_eq!(rt; next(&mut pool), Some(CoreNo(8)));
    pool.fence(Fenced { core: CoreNo(0) });
    let Some(repaired) = pool.bring_back(CoreNo(0)) else {
        assert!(rt; false);
        return Ok(());
    };
    assert_eq!(rt; repaired.core, CoreNo(0));
    pool.put_back(Spare {
        core: repaired.core,
    });
    assert_eq!(rt; next(&mut pool), Some(CoreNo(0)));
    pool.fence(Fenced { core: CoreNo(8) });
    assert_eq!(rt; next(&mut pool), None);
    assert!(rt; pool.bring_back(CoreNo(0)).is_none());
    assert!(rt; pool.bring_back(CoreNo(8)).is_some());
    Ok(())
}

#[test]
fn fenced_cores_by_number(rt: HostRuntime) -> Result<(), Fail> {
    let mut pool: Pool<Spare, Fenced> = Pool::new(rt.alloc())?;
    pool.fence(Fenced { core: CoreNo(3) });
    pool.fence(Fenced { core: CoreNo(0) });
    pool.fence(Fenced { core: CoreNo(11) });
    for (core, is_fenced) in [
        (1, false),
        (3, true),
        (3, false),
        (12, false),
        (11, true),
        (0, true),
        (0, false),
    ] {
        match pool.bring_back(CoreNo(core)) {
            Some(fenced) => assert!(rt; is_fenced && fenced.core == CoreNo(core), "core {core}"),
            None => assert!(rt; !is_fenced, "core {core}"),
        }
    }
    Ok(())
}
