// What stands in a log table, and when a call on it is refused: laws of `logs`, in specs/. There is no code here.
#![tactic(auto)]
