// The cases that document 01 marks to be proved: specs/ holds the table and what is proved of it, and there is no code.

#![tactic(auto)]
