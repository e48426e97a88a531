//! The two kinds of seats.
use std::marker::Model;

/// Which places are seats of this kind, and what such a seat shows of its place.
pub trait SeatKind {
    ghost use Rattle.atomic_table.specs.Seated.{TableId};
    ghost use Rattle.order_book.specs.declared.rule.BookSizes.{BookSizes};
    ghost use Rattle.order_book.specs.declared.place.Place.{Place};

    ghost shown: { Place → Self };

    ghost holds: { TableId → BookSizes → Place → Type 0 };
}

/// What a shard's seat shows. No value of it is made.
pub struct Shards;

impl Model for Shards {
    ghost use Rattle.order_book.specs.Pages.{ShardList, new_shard};

    ghost Value = { ShardList };

    ghost view = { λ _. new_shard 0 };
}

impl SeatKind for Shards {
    ghost use Rattle.order_book.specs.Named.{shard_shown, IsShardPlace};

    ghost shown = { shard_shown };

    ghost holds = { IsShardPlace };
}

/// What a session's seat shows. No value of it is made.
pub struct Sessions;

impl Model for Sessions {
    ghost use Rattle.order_book.specs.Pages.{SessionList, new_session};

    ghost Value = { SessionList };

    ghost view = { λ _. new_session 0 };
}

impl SeatKind for Sessions {
    ghost use Rattle.order_book.specs.Named.{named_session, IsSessionPlace};

    ghost shown = { named_session };

    ghost holds = { IsSessionPlace };
}
