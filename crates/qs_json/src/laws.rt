//! Worked examples of texts for machines, and what holds of them.

ghost use Rattle.qs_json.specs.EndsJson.{EndsJsonIsUnique, EndsJsonTellApart};
ghost use Rattle.qs_json.specs.GraphJson.{GraphJsonIsUnique};
ghost use Rattle.qs_json.specs.OutcomesJson.{OutcomesJsonIsUnique};

/// A program has one text of its outcomes after a front, also where the limit is another one; it does nothing.
pub fn outcomes_json_is_unique()
    ensures unique { OutcomesJsonIsUnique }
{}

/// A sound program has one text of its graphs; it does nothing.
pub fn graph_json_is_unique()
    ensures unique { GraphJsonIsUnique }
{}

/// A program has one text of its ends after a front, also where the limit is another one; it does nothing.
pub fn ends_json_is_unique()
    ensures unique { EndsJsonIsUnique }
{}

/// Different ends of a checked program have different lines, whichever blocks came first. So where the lines of several
/// lists are sorted with each once, each end is there once. It does nothing.
pub fn ends_tell_apart()
    ensures apart { EndsJsonTellApart }
{}
