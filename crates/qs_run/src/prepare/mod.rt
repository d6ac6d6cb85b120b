//! Preparing a run: the parts that it begins with, and the workers that are made of them. No thread is started here.

mod lanes;
mod parts;
mod workers;

pub(crate) use parts::{RunParts, make_parts};
pub(crate) use workers::make_workers;
