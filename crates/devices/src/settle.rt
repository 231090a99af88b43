//! Taking the early packets that follow unbroken.
ghost use Rattle.std.specs.Prelude.{◌≡◌, ◌≤◌, Option};
ghost use Rattle.link.specs.Meaning.{Follows};
ghost use Rattle.link.specs.declared.term.Window.{Window};
ghost use Rattle.reader.specs.Restarted.{size_of};
ghost use Rattle.devices.specs.Early.{packets};
ghost use Rattle.devices.specs.Stored.{most_of, space_of, taken_in};
ghost use Rattle.devices.specs.Waiting.{AllWait};

use crate::ahead::Ahead;
use crate::store::Store;

/// Takes the packets that follow unbroken. The others wait as before, whatever the numbers of the term.
pub fn settle(store: &mut Store, ahead: &Ahead)
    requires { (n : Option Window) × (size_of n ≤ 3584) × AllWait n (taken_in store.old) (space_of store.old) (most_of store.old) (packets ahead.now) }
    ensures taken { Follows (taken_in store.old) (packets ahead.now) (taken_in store.new) }
    ensures waiting { (n : Option Window) → AllWait n (taken_in store.old) (space_of store.old) (most_of store.old) (packets ahead.now) → AllWait n (taken_in store.new) (space_of store.new) (most_of store.new) (packets ahead.now) }
    ensures space { space_of store.new ≡ space_of store.old }
    ensures most { most_of store.new ≡ most_of store.old }
{
    while let Some(packet) = ahead.packet(store.count()) {
        store.append(packet);
    }
}
