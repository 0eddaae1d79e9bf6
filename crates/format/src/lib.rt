// How terms, records and rows stand in bytes: definitions and their laws alone. The readers of the code are in grammar, fields and records.
#![tactic(auto)]
