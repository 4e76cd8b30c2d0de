// What the written form is, said of bytes by themselves: what is written is in it, and bytes in it come out unchanged when they are read and written
// (specs/Statements.antt). There is no function here.
#![tactic(auto)]
