ghost use Rattle.std.specs.Prelude.{ℕ, ◌+◌, List, length};
ghost use Rattle.wp_journal.specs.Journals.{IsJournalOf};
ghost use Rattle.wp_model.specs.Tables.{AreReadScripts, IsReadOpening};
ghost use Rattle.wp_top.specs.Runs.{Day, IsPlan, IsTextOf, command_count};
ghost use Rattle.wp_top.specs.Sheets.{terms_of};
ghost use Rattle.wp_top.specs.Stores.{Held, IsBegun};
ghost use Rattle.wp_top.specs.Texts.{Said, opening_with};
ghost use Rattle.wp_words.specs.Words.{PlanNames};

/// A law: the output of a plan is a right journal. It has the entries of the history with which the day began, and one
/// more for each command of the scripts of all desks. So an audit of it with the same units finds nothing wrong, where
/// there is memory. What the readers of the tables give keeps what is asked of the opening and of the scripts. It is
/// said of each thing that a store may hold.
pub fn plans_print_right_journals()
    ensures { (held : Held) (names : PlanNames) (said : Said) (day : Day) (output : List ℕ)
        → IsReadOpening said.opening → AreReadScripts said.scripts
        → IsBegun held names.store (opening_with said.opening names.units) (command_count said.scripts) day.start
        → IsPlan said.layout (opening_with said.opening names.units) said.scripts (terms_of names) day
        → IsTextOf (terms_of names) day output
        → IsJournalOf (opening_with said.opening names.units) output
        (length day.start.entries + command_count said.scripts) }
{}
