//! Tests of settings, of the command line, and of the lines with which the program reports its faults.
#![tactic(auto)]

#[cfg(test)]
mod faults;
#[cfg(test)]
mod jobs;
#[cfg(test)]
mod kinds_of_settings;
#[cfg(test)]
mod notices_named;
#[cfg(test)]
mod settings_files;
