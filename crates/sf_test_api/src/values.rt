//! Values that are made, put together, copied and compared.
mod devices;
mod entries;
mod faults;
mod fields;
mod forms;
mod lookups;
mod sequences;
mod texts;
