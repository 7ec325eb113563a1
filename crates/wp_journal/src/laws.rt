ghost use Rattle.std.specs.Prelude.{ℕ, ◌++◌, IsTrue, List, length};
ghost use Rattle.std.specs.List.{All};
ghost use Rattle.wp_model.specs.History.{History};
ghost use Rattle.wp_model.specs.Journal.{journal};
ghost use Rattle.wp_journal.specs.Days.{IsDay};
ghost use Rattle.wp_journal.specs.Grammar.{is_line_entry};
ghost use Rattle.wp_journal.specs.Journals.{IsJournalOf};

/// A law: the journal of a day is right, whatever text follows it. Each entry is one of a journal, so `read_entry`
/// gives it back from its line; and all the lines are those of a legal history from its opening, so `audit` answers
/// with the number of the entries. For both there must be memory.
pub fn printed_journals_are_right()
    ensures entries { (history : History) → IsDay history
        → All (λ entry. IsTrue (is_line_entry entry)) history.entries }
    ensures journal { (history : History) (more : List ℕ) → IsDay history
        → IsJournalOf history.opening (journal history.entries ++ more)
        (length history.entries) }
{}
