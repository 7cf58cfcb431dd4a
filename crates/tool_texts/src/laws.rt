ghost use Rattle.tool_texts.specs.Explained.{ExplainsWhatChecks};

/// `explain` refuses a file exactly where `check` does, and explains a refusal that `check` may answer: its code at its place.
pub fn explain_refuses_as_check()
    ensures { ExplainsWhatChecks }
{}
