//! The laws hold for each history that an audit finds clean.
//! The guarantees for threads that share a controller.
ghost use Rattle.std.specs.Prelude.{◌≡◌, List, ℕ, Ok, Some};
ghost use Rattle.pie_guarantees.specs.{Opening, IsLawful};
ghost use Rattle.pie_record.specs.ReadBack.{IsHistoryText};
ghost use Rattle.pie_record.specs.Text.{records_of};
ghost use Rattle.pie_record.specs.declared.history_record.Line.{Line};
ghost use Rattle.pie_audit.specs.declared.auditor.Finding.TheVariants.{Clean};
ghost use Rattle.pie_audit.specs.Replay.{events_of};
ghost use Rattle.pie_audit.specs.Text.{text_finding};
ghost use Rattle.pie_book.specs.Book.{BookView};
ghost use Rattle.pie_link.specs.Entries.{events_in};
ghost use Rattle.pie_link.specs.declared.entry.Entry.{Entry};
ghost use Rattle.pie_link.specs.Headline.{IsFree, IsKeyOf, IsOneHistory, KeepsOneHistory, LiesIn, LockKey, LockState, callers_of};
ghost use Rattle.pie_link.specs.Callers.{LinkView};

use atomic_table::TableRule;
use pie_book::Opening as LinkOpening;
use pie_link::{Entry as LinkEntry, KeptBook};
use pie_lock::{LockOpening, LockRule, SeatKnowledge};

/// All laws hold for the events of a text for which an audit finds `Clean`, from the opening of the text, whatever program wrote it (this project's
/// own). `audit` of pie_audit is proved to return this finding.
pub fn clean_histories_are_lawful()
    ensures { (text : List ℕ) (opening : Opening) (lines : List Line) (events : ℕ) → IsHistoryText text opening lines
        → text_finding (records_of text) ≡ Ok (Clean events) → IsLawful opening (events_of lines) }
{
    pie_audit::law::clean_is_legal();
}

/// All laws hold for the one history of a link, whenever its lock is free and whatever its callers do. So each
/// sender has these guarantees whatever the other senders do: no sender makes another's packet wait longer, or be
/// dropped or marked at another time, than a law allows (this project's own).
pub fn links_are_lawful()
    ensures { let rule = ⟦<LockRule as TableRule<Option<KeptBook>, SeatKnowledge<LinkEntry, LinkOpening>, LockOpening<KeptBook>>>⟧.holds in
        (link : LinkView) → KeepsOneHistory rule link → (opening : Opening) → link.origin ≡ Some opening → (key : LockKey) → IsKeyOf link opening key
        → (lock : LockState) → rule key lock → IsFree lock → (book : BookView) × LiesIn lock book × ((history : List Entry)
        × (IsOneHistory opening book (callers_of lock.views) history × IsLawful opening (events_in history))) }
{}
