// The rules of replay as functions of the whole list of entries, and recovery's checks. There is no
// code yet: recovery is to be proved against these definitions.

#![tactic(auto)]
