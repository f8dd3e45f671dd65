ghost use Rattle.inboxes.specs.Passes.{IsPassOf};

use inboxes::{Inbox, InboxPass, Postable};
use plain_lists::Want;
use std::alloc::Global;
use std::sync::Wait;
use std::test::Fail;
use std::thread;
use std::thread::Threads;

const COUNT: u32 = 1000;

// What the tests post: any number.
#[derive(Drop)]
struct Numbered {
    number: u32,
}

impl Postable for Numbered {
    ghost use Rattle.std.specs.Prelude.{⊤};

    ghost fits = { λ item. ⊤ };
}

fn is_number(taken: Option<Numbered>, number: u32) -> bool {
    match taken {
        Some(item) => item.number == number,
        None => false,
    }
}

#[test]
fn the_oldest_item_is_taken_first(rt: HostRuntime) -> Result<(), Fail> {
    let (inbox, mut first) = Inbox::new(rt.alloc())?;
    let mut second = inbox.split(&mut first)?;
    assert!(rt; inbox.take(&rt, &mut second).is_none());
    assert!(rt; inbox.post(&rt, &mut first, Numbered { number: 1 }).is_ok());
    assert!(rt; inbox.post(&rt, &mut second, Numbered { number: 2 }).is_ok());
    assert!(rt; is_number(inbox.take(&rt, &mut second), 1));
    assert!(rt; is_number(inbox.take(&rt, &mut first), 2));
    inbox.join(&mut first, second);
    assert!(rt; inbox.take(&rt, &mut first).is_none());
    Ok(())
}

fn post_all<R: Wait>(rt: &R, inbox: &Inbox<Numbered>, mut pass: InboxPass<Numbered>) -> bool
    requires { IsPassOf inbox.now pass }
{
    for number in 0..COUNT {
        if inbox.post(rt, &mut pass, Numbered { number }).is_err() {
            return false;
        }
    }
    true
}

fn take_all<R: Wait>(rt: &R, inbox: &Inbox<Numbered>, mut pass: InboxPass<Numbered>) -> bool
    requires { IsPassOf inbox.now pass }
{
    let mut next = 0;
    for _ in rt.forever() {
        if next >= COUNT {
            break;
        }
        match inbox.take(rt, &mut pass) {
            Some(item) => {
                if item.number != next {
                    return false;
                }
                next += 1;
            }
            None => thread::yield_now(),
        }
    }
    true
}

fn hand_over<R: Threads + Wait + Sync>(rt: &R, alloc: Global) -> Result<(bool, bool), Want> {
    let (inbox, mut giver) = Inbox::new(alloc)?;
    let inbox = &inbox;
    let taker = inbox.split(&mut giver)?;
    Ok(thread::join(
        rt,
        move || -> bool
            requires { IsPassOf inbox.now giver }
        { post_all(rt, inbox, giver) },
        move || -> bool
            requires { IsPassOf inbox.now taker }
        { take_all(rt, inbox, taker) },
    ))
}

#[test]
fn one_thread_takes_what_another_posts_in_its_order(rt: HostRuntime) -> Result<(), Fail> {
    assert!(rt; hand_over(&rt, rt.alloc())? == (true, true));
    Ok(())
}
