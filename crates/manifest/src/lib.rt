// Directories of manifests: what their text means, and the questions that it is asked.
#![tactic(auto)]

ghost use Rattle.manifest.specs.Examples.{Examples};
ghost use Rattle.manifest.specs.Laws.{EveryOrder, LawfulFormed, OnlyWritten, PointsAtLines, ReadsBack, ReadsLawful};

mod bundles;
mod chars;
pub mod check;
mod clause;
mod clauses;
mod directory;
mod draft;
mod entry;
pub mod header;
mod headers;
mod items;
mod keywords;
pub mod limits;
mod line;
mod lines;
mod lists;
pub mod manifest_shelf;
mod names;
mod parameters;
pub mod question;
mod quoted;
mod reader;
pub mod refusal;
mod texts;
mod twice;
mod values;

// The laws that the definitions keep by themselves.
pub fn laws_hold()
    ensures { OnlyWritten × EveryOrder × PointsAtLines × ReadsLawful × ReadsBack × LawfulFormed }
{}

// Short directories, read by the definitions.
pub fn examples_hold()
    ensures { Examples }
{}
