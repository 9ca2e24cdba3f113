mod allocations;
mod desks;
mod devices;
mod failing_moments;
mod fixtures;
mod memory_refusals;
mod shared_desks;
mod workers;
