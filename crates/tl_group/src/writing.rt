//! The append of a group: it takes no memory, and tells only whether the disk failed, by the disk's
//! count of faults.
ghost use Rattle.std.specs.Prelude.{◌≡◌, ◌≤◌, ◌++◌, ℕ, List, length, None, Some, IfSome};
ghost use Rattle.tl_types.specs.declared.commits.Commit.{Commit as CommitValue};
ghost use Rattle.tl_device.specs.Known.{Rose};
ghost use Rattle.tl_journal.specs.Image.{NoneOrAll, IsBodyOfAll};
ghost use Rattle.tl_journal.specs.Moments.{EachMoment};
ghost use Rattle.tl_journal.specs.Stands.{JournalStandsFor};

use tl_device::Disk;
use tl_journal::{AppendFault, Journal};
use tl_types::Bytes;

/// Appends the body of a group for which there is room to a journal that is not broken. `Some`: the
/// disk failed, and this is its count of faults, which rose.
pub(crate) fn append<D: Disk>(journal: &mut Journal<D>, body: &Bytes) -> Option<u64>
    requires body { (group : List CommitValue) × IsBodyOfAll group body.now }
    requires fits { length body.now ≤ journal.old.spare }
    requires whole { journal.old.broken ≡ None }
    ensures stored { (cs group : List CommitValue) →
        JournalStandsFor D.reads D.may_leave journal.old cs → IsBodyOfAll group body.now →
        result ≡ None → JournalStandsFor D.reads D.may_leave journal.new (cs ++ group) }
    ensures any_moment { (cs group : List CommitValue) →
        JournalStandsFor D.reads D.may_leave journal.old cs → IsBodyOfAll group body.now →
        EachMoment D.moment D.left_since journal.old.disk journal.new.disk (NoneOrAll cs group) }
    ensures now { (cs group : List CommitValue) →
        JournalStandsFor D.reads D.may_leave journal.old cs → IsBodyOfAll group body.now →
        (image : List ℕ) → D.may_leave journal.new.disk image → NoneOrAll cs group image }
    ensures reads { (cs group : List CommitValue) →
        JournalStandsFor D.reads D.may_leave journal.old cs → IsBodyOfAll group body.now →
        (image : List ℕ) × (D.reads journal.new.disk ≡ Some image) × NoneOrAll cs group image }
    ensures sure { result ≡ None → D.faults journal.new.disk ≡ D.faults journal.old.disk }
    ensures device { IfSome result (λ count. (count ≡ D.faults journal.new.disk)
        × Rose (D.faults journal.old.disk) count) }
{
    match journal.append_all(body) {
        Ok(()) => None,
        Err(AppendFault::Device { faults }) => Some(faults),
        Err(AppendFault::Broken { faults }) => Some(faults),
    }
}
