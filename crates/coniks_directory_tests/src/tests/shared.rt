//! Claims that several threads draw from, and boards.

ghost use Rattle.std.specs.Prelude.{◌≡◌, All};

use coniks_proof::{Digest, Head};
use coniks_threads::{Board, Claims, Drawer, NoSeat};
use std::alloc::Global;
use std::process::Abort;
use std::thread;
use std::thread::Threads;

/// A drawer on its way through a thread, the numbers that it drew, and whether an allocation failed.
#[derive(Drop)]
struct Hand {
    drawer: Drawer,
    drawn: Vec<usize>,
    refused: bool,
}

/// Returns the hand of a drawer that has drawn nothing yet.
fn empty_hand(alloc: Global, drawer: Drawer) -> Hand
    ensures { result.drawer ≡ drawer }
{
    Hand {
        drawer,
        drawn: Vec::new(alloc),
        refused: false,
    }
}

/// Draws until no number is left.
fn draw_all(hand: &mut Hand, claims: &Claims)
    requires { hand.old.drawer.table ≡ claims.now.table }
{
    while let Some(number) = hand.drawer.draw(claims) {
        if hand.drawn.push(number).is_err() {
            hand.refused = true;
        }
    }
}

/// Returns eight hands that draw from the same claims.
fn eight_hands(rt: &impl Abort, alloc: Global, claims: &Claims, drawer: Drawer) -> Vec<Hand>
    requires { drawer.table ≡ claims.now.table }
    ensures { All (λ h. h.drawer.table ≡ claims.now.table) result.items }
{
    let mut first = drawer;
    let mut hands = Vec::new(alloc);
    for _ in 0..7usize {
        let Ok(drawer) = first.split(claims) else {
            panic!(rt; "no drawer")
        };
        let Ok(()) = hands.push(empty_hand(alloc, drawer)) else {
            panic!(rt; "no memory")
        };
    }
    let Ok(()) = hands.push(empty_hand(alloc, first)) else {
        panic!(rt; "no memory")
    };
    hands
}

/// Draws all numbers, each hand in a thread of its own.
fn draw_beside<R: Threads + Sync>(rt: &R, claims: &Claims, hands: &mut [Hand])
    requires { All (λ h. h.drawer.table ≡ claims.now.table) hands.old }
{
    thread::for_each_mut(
        rt,
        hands,
        8,
        &|_place, hand: &mut Hand|
            requires { hand.now.drawer.table ≡ claims.now.table }
        {
            draw_all(hand, claims);
        },
    );
}

/// Eight threads draw the numbers below 4,096, each once.
#[test]
fn drawn_once(rt: HostRuntime) {
    let (claims, first) = Claims::new(rt.alloc(), 4096).expect(&rt, "claims");
    let mut hands = eight_hands(&rt, rt.alloc(), &claims, first);
    draw_beside(&rt, &claims, hands.as_mut_slice());
    let mut all = Vec::new(rt.alloc());
    for hand in &hands {
        assert!(rt; !hand.refused);
        let added = all.extend_from_slice(hand.drawn.as_slice());
        added.expect(&rt, "memory");
    }
    all.as_mut_slice().sort(rt.alloc()).expect(&rt, "memory");
    assert!(rt; all.len() == 4096);
    for (place, number) in all.iter().enumerate() {
        assert!(rt; *number == place);
    }
}

/// 64 drawers can be had at once.
#[test]
fn sixty_five_drawers(rt: HostRuntime) {
    let (claims, mut first) = Claims::new(rt.alloc(), 3).expect(&rt, "claims");
    let shared = &claims;
    let mut further = Vec::new(rt.alloc());
    for _ in 0..63usize {
        let drawer = first.split(shared).expect(&rt, "a drawer");
        further.push(drawer).expect(&rt, "memory");
    }
    assert!(rt; matches!(first.split(shared), Err(NoSeat)));
}

/// Returns the head of an epoch, whose link has its number in each byte.
fn head(epoch: u8) -> Head {
    Head {
        epoch: u64::from(epoch),
        link: Digest([epoch; 32]),
    }
}

/// A watcher sees what was published since its last look, also after it met the publisher.
#[test]
fn watcher_follows(rt: HostRuntime) {
    let (board, mut publisher) = Board::new(rt.alloc(), 1_025).expect(&rt, "a board");
    let mut watcher = publisher.watcher(&board).expect(&rt, "a watcher");
    assert!(rt; watcher.latest(&board).is_none());
    assert!(rt; publisher.publish(&board, head(1)) == Ok(()));
    assert!(rt; publisher.publish(&board, head(2)) == Ok(()));
    assert!(rt; watcher.latest(&board) == Some(head(2)));
    publisher.meet(&board, &mut watcher);
    assert!(rt; publisher.publish(&board, head(3)) == Ok(()));
    assert!(rt; watcher.latest(&board) == Some(head(3)));
}
