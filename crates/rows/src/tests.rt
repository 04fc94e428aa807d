// Short tests of the crates below, on examples.
mod of_image;
mod of_keys;
mod of_lists;
mod of_logbook;
mod of_memory;
