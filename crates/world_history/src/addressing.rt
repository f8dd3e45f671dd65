//! To whom an actor's words go.
ghost use Rattle.std.specs.Prelude.{◌≡◌, ℕ, ◌+◌, ◌<◌, ◌∷◌, ◌++◌, [], not, nat_eq, if◌then◌else◌, IfOk, OnOk};
ghost use Rattle.protocol_rules.specs.Group.{group_of, is_door as is_door_of};
ghost use Rattle.quorum_sets.specs.Masters.{voters};
ghost use Rattle.world_rules.specs.Frames.{addressees};
ghost use Rattle.world_history.specs.Addressing.{IsClientFew};

use message_types::Body;
use plain_lists::{Items, Want};
use preorder::is_door;
use quorum_sets::{MOST_CLIENTS, Sizes};
use std::alloc::Global;

fn push_if(to: &mut Items<u32>, master: u32, is_one: bool) -> Result<(), Want>
    ensures { OnOk result (to.new ≡ to.old ++ (if is_one then master ∷ [] else [])) }
{
    if is_one { to.push(master) } else { Ok(()) }
}

/// The masters that are doors of the client.
fn doors(alloc: Global, sizes: &Sizes, client: u32) -> Result<Items<u32>, Want>
    requires { client < MOST_CLIENTS }
    ensures { IfOk result (λ to. (clients : ℕ) → to ≡ voters (is_door_of (group_of sizes.now clients) client) sizes.now.n) }
{
    let mut to = Items::new(alloc);
    for master in 0..sizes.n {
        push_if(&mut to, master, is_door(sizes, client, master))?;
    }
    Ok(to)
}

/// All masters but this.
fn all_others(alloc: Global, sizes: &Sizes, actor: u32) -> Result<Items<u32>, Want>
    ensures { IfOk result (λ to. to ≡ voters (λ m. not (nat_eq m actor)) sizes.now.n) }
{
    let mut to = Items::new(alloc);
    for master in 0..sizes.n {
        push_if(&mut to, master, master != actor)?;
    }
    Ok(to)
}

/// The numbers of the actors to whom the actor's words of this body go, rising: an update goes to its client's doors, a
/// voucher to its client, all else to all other masters.
pub fn addressees(alloc: Global, sizes: &Sizes, actor: u32, body: &Body) -> Result<Items<u32>, Want>
    requires { IsClientFew body.now }
    ensures { IfOk result (λ to. (clients : ℕ) → to ≡ addressees (group_of sizes.now clients) actor body.now) }
{
    match body {
        Body::Update(word) => doors(alloc, sizes, word.client),
        Body::Voucher(word) => {
            let mut to = Items::new(alloc);
            to.push(sizes.n + word.client)?;
            Ok(to)
        }
        _ => all_others(alloc, sizes, actor),
    }
}
