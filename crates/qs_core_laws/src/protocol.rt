//! The protocol of one client, one lane and one object: what was sent, received, given and got, and how these stand to
//! the trace. It is law alone, and serves every machine whose clients and handlers are those of `qs_client` and
//! `qs_handler`.
