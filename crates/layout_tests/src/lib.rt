// Pages compared with bytes that tools/page_bytes.py computes from the rules, and pages with something wrong in them.
#![tactic(auto)]

#[cfg(test)]
mod free_pages;
#[cfg(test)]
mod headers;
#[cfg(test)]
mod leaves;
