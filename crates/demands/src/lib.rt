// The demands, and what each call promises, said in the words of the requirements and proved: statement pages, in specs/. There is no code here.
#![tactic(auto)]
