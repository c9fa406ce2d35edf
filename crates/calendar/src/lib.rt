// The flag calendar (document 02, point 5), as definitions (specs/) with their laws (proofs/). There is no code here: `calendar_marks` keeps the words, and
// `calendar_questions` answers from them.
#![tactic(auto)]
