// What the definitions of the calls come to: an example of a merge by closed terms (specs/Example.antt), what a GET shows of the agent's own records
// (specs/Shown.antt), that the index lists every id that is there and no other (specs/Index.antt), and a reply's 1,280 bytes (specs/Reply.antt). There is no
// function here.
#![tactic(auto)]
