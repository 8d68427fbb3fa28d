//! Tests of hostile bytes: archives cut short and with bytes made others, judged by `access` and by a slow check of its own, made from docs/FORMAT.md. And of what
//! explains a refusal, by types and by their declarations as texts.
#![tactic(auto)]

#[cfg(test)]
mod agreement;
#[cfg(test)]
mod archives;
#[cfg(test)]
mod assertions;
#[cfg(test)]
mod declared;
#[cfg(test)]
mod deep;
#[cfg(test)]
mod derived;
#[cfg(test)]
mod faults;
#[cfg(test)]
mod maps;
#[cfg(test)]
mod oracle;
#[cfg(test)]
mod rows;
