//! Calls as lines, the cowns that they declare, and their replies.
mod ask_lines;
mod bank;
mod call_sequences;
mod cowns;
mod plain_bank;
