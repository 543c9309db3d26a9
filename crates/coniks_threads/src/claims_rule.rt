//! The knowledge of a seat of the claims, the rule of the claims, and the effect of each of its steps on a view.
use atomic_table::{Join, Play, Split, TableRule};
use std::collections::LinkedList;

/// The view of a seat. No value of it is made at run time.
///
/// It contains the numbers that the seat drew, and its parts of the right to know all lists. It also contains n and the
/// number of its drawers that have returned `None`.
pub struct DrawerView {
    pub list: LinkedList<u64>,
    pub parts: u64,
    pub outs: u64,
    pub limit: u64,
}

/// The rule of the claims. The table's key is n.
pub struct ByClaims;

impl<S> TableRule<S, DrawerView, usize> for ByClaims {
    ghost use Rattle.std.specs.Prelude.{[]};
    ghost use Rattle.coniks_threads.specs.Limits.{most_drawers};
    ghost use Rattle.coniks_threads.specs.ClaimsRule.{drawer_view, IsByClaims};

    ghost holds = { IsByClaims };

    ghost first = { λ n. drawer_view [] most_drawers 0 n };
}

/// One number is drawn, or the drawer is out.
pub struct OneDraw;

impl<S> Play<S, DrawerView> for OneDraw {
    ghost use Rattle.coniks_threads.specs.ClaimsRule.{Drew};

    ghost then = { Drew };
}

/// One part goes to a new drawer, and comes back at the end.
pub struct OnePart;

impl Split<DrawerView> for OnePart {
    ghost use Rattle.std.specs.Prelude.{[], ◌-◌};
    ghost use Rattle.coniks_threads.specs.ClaimsRule.{drawer_view};

    ghost left = { λ v. drawer_view v.list (v.parts - 1) v.outs v.limit };

    ghost right = { λ v. drawer_view [] 1 0 v.limit };
}

impl Join<DrawerView> for OnePart {
    ghost use Rattle.coniks_threads.specs.ClaimsRule.{both_views, spent_view};

    ghost both = { both_views };

    ghost spent = { spent_view };
}
