//! Worked traces, as the plain program carries them out.
#[cfg(test)]
mod worked_traces;
