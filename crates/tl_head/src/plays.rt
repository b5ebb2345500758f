//! The rule of a door, and what each kind of step tells: a ticket is drawn once, and the turn is
//! passed on once the value is laid.
ghost use Rattle.tl_head.specs.Rule.{KeepsTurns};
ghost use Rattle.tl_head.specs.Views.{writer_view, copy_of, both_of, spent_view};
ghost use Rattle.tl_head.specs.Moves.{Draws, Looks, PassesOn, Sees, Publishes, Learns};

use crate::views::View;
use atomic_table::{Join, Play, Split, TableRule};
use std::snapshot::Snapshot;
use tl_types::Published;

/// The rule. Its key is the value that the door was made with.
pub struct Turns;

impl<V: Published> TableRule<Option<V>, View, Snapshot<V>> for Turns {
    ghost holds = { λ _. KeepsTurns V.entries };

    ghost first = { λ key. writer_view (V.entries key.value) };
}

pub(crate) struct Draw;

impl<V> Play<Option<V>, View> for Draw {
    ghost then = { Draws };
}

pub(crate) struct Look;

impl<V: Published> Play<Option<V>, View> for Look {
    ghost then = { Looks V.entries };
}

pub(crate) struct PassOn;

impl<V> Play<Option<V>, View> for PassOn {
    ghost then = { PassesOn };
}

pub(crate) struct See;

impl<V> Play<Option<V>, View> for See {
    ghost then = { Sees };
}

pub(crate) struct Publish;

impl<V: Published> Play<Option<V>, View> for Publish {
    ghost then = { Publishes V.entries };
}

pub(crate) struct Learn;

impl<V> Play<Option<V>, View> for Learn {
    ghost then = { Learns };
}

pub(crate) struct Copies;

impl Split<View> for Copies {
    ghost left = { λ v. v };

    ghost right = { copy_of };
}

pub(crate) struct TakesIn;

impl Join<View> for TakesIn {
    ghost both = { both_of };

    ghost spent = { spent_view };
}
