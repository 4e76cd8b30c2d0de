// Messages by tables: one definition reads by a table of the known fields, one writes by it (specs/Table.antt), and what is written
// reads back (specs/Statements.antt). There is no function here: the readers and writers of messages go by these definitions.
#![tactic(auto)]
