//! What holds of all printed lines. The function does nothing: its contract is the law.
ghost use Rattle.std.specs.Prelude.{IsTrue};
ghost use Rattle.std.specs.List.{list_all};
ghost use Rattle.line_texts.specs.CleanWords.{is_clean};
ghost use Rattle.tc_words.specs.Lines.{words_of};
ghost use Rattle.filter_state.specs.declared.edit.Edit.{Edit};
ghost use Rattle.filter_state.specs.Lines.{IsLine};
ghost use Rattle.tc_batch.specs.Grammar.{Gives};
ghost use Rattle.tc_print.specs.EditWords.{edit_words, printed};

/// Each edit that a batch line can say is said by the line that it is printed as, and each word of that line
/// is clean.
pub fn printed_lines_give_their_edits()
    ensures gives { (edit : Edit) → IsLine edit → Gives (words_of (printed edit)) edit }
    ensures words { (edit : Edit) → IsLine edit → Gives (edit_words edit) edit }
    ensures clean { (edit : Edit) → IsLine edit → IsTrue (list_all is_clean (edit_words edit)) }
{}
