#![tactic(auto)]

// Laws of the record: what was written, in either format, reads back as it was solved (proofs/Back.antt); what is read is the
// record of what it shows, and writes back as format 2 (proofs/Same.antt); the number of a refused text is that of its first
// wrong line (proofs/First.antt), of which there is one at most (proofs/Only.antt); another format is wrong at line 1
// (proofs/Formats.antt); no record has more than 1,065 bytes (proofs/Most.antt).
