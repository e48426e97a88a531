use std::marker::Brand;

/// Names one pool. The caller of a function over it picks its members: the number of the pool's table, and its sizes.
pub trait PoolName {
    ghost use Rattle.atomic_table.specs.Seated.{TableId};
    ghost use Rattle.pin_core.specs.declared.sizes.Sizes.{Sizes};

    ghost table: { TableId };

    ghost sizes: { Sizes };
}

impl PoolName for Brand {
    ghost use Rattle.pinned_pool.specs.Named.{unnamed_pool, no_pool_sizes};

    ghost table = { unnamed_pool };

    ghost sizes = { no_pool_sizes };
}
