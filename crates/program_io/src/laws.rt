//! Facts about the definitions alone.
ghost use Rattle.std.specs.Prelude.{◌≡◌, ℕ, List, Result};
ghost use Rattle.command_line.specs.declared.order.Order.{Order};
ghost use Rattle.program_io.specs.declared.order_texts.OrderTexts.{OrderTexts};
ghost use Rattle.program_io.specs.declared.program_fault.ProgramFault.{ProgramFault};
ghost use Rattle.program_io.specs.Answers.{Answer};
ghost use Rattle.program_io.specs.OrderAnswer.{IsAnswer, IsAnswerTo};
ghost use Rattle.program_io.specs.Options.{KnownTexts, ReadsOrder, all_known};

/// If the text of every file is known, an order has at most one answer.
pub fn one_answer()
    ensures { (texts : List ℕ → List ℕ) (order : Order) (a b : Result Answer ProgramFault) →
        IsAnswer (all_known texts) order a → IsAnswer (all_known texts) order b → a ≡ b }
{}

/// The answer over the texts that were read is the answer to the order over the texts of its files, although
/// only a limited number of their bytes was read.
pub fn read_texts_answer()
    ensures { (known : KnownTexts) (order : Order) (texts : OrderTexts) → ReadsOrder known order texts →
        (answer : Result Answer ProgramFault) → IsAnswerTo order texts answer → IsAnswer known order answer }
{}
