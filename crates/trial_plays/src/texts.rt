//! Tables of HTTP frames, and of JSON texts, bodies, capabilities, routes and lists; of the texts of responses, and of the call that each
//! route makes first.
mod bodies;
mod lists;
mod merging;
mod replies;
mod routes;
mod scripts;
mod spans;
mod whole_texts;
