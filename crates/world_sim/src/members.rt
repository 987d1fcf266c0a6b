//! Members: who is up, oldest first.
ghost use Rattle.std.specs.Prelude.{◌≡◌, ◌+◌, ◌<◌, ◌≤◌, ◌++◌, [], ◌∷◌, map};
ghost use Rattle.world_sim.specs.Steps.{view_item};

use crate::mail::Mail;
use members_by_age::ByAge;
use yard_model::{Body, Incarnation, Item, Members, Packet};

/// A view of these members, of this version, is to be posted to each of them.
pub(crate) fn post_views(mail: &mut Mail, members: &ByAge, version: u32)
    requires { 16 ≤ mail.old.spare }
    ensures items { mail.new.items ≡ mail.old.items ++ map (view_item version members.now) members.now }
    ensures packets { mail.new.packets ≡ mail.old.packets }
    ensures fresh { mail.new.fresh ≡ mail.old.fresh }
    ensures full { mail.new.full ≡ mail.old.full }
{
    let all = members.members();
    post_to_all(mail, &all, version);
}

/// A view of these members, of this version, is to be posted to each of them.
fn post_to_all(mail: &mut Mail, members: &Members, version: u32)
    requires { 16 ≤ mail.old.spare }
    ensures items { mail.new.items ≡ mail.old.items ++ map (view_item version members.now) members.now }
    ensures packets { mail.new.packets ≡ mail.old.packets }
    ensures fresh { mail.new.fresh ≡ mail.old.fresh }
    ensures full { mail.new.full ≡ mail.old.full }
{
    for place in 0..members.len() {
        match members.get(place) {
            Some(member) => post_view(mail, members, version, &member),
            None => unreachable!(),
        }
    }
}

/// A view of these members, of this version, is to be posted to one of them.
fn post_view(mail: &mut Mail, members: &Members, version: u32, member: &Incarnation)
    requires { 0 < mail.old.spare }
    ensures items { mail.new.items ≡ mail.old.items ++ view_item version members.now member.now ∷ [] }
    ensures packets { mail.new.packets ≡ mail.old.packets }
    ensures fresh { mail.new.fresh ≡ mail.old.fresh }
    ensures full { mail.new.full ≡ mail.old.full }
    ensures spare { mail.new.spare + 1 ≡ mail.old.spare }
{
    mail.push(Item::Post(Packet {
        from: *member,
        to: *member,
        body: Body::View {
            version,
            members: *members,
        },
    }));
}
